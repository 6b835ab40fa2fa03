// A job: what its bytes hold, and the questions put to it.
ghost use Rattle.std.specs.Prelude.{◌≡◌, true, ◌<◌, length, replicate, IfOk};
ghost use Rattle.image.specs.Layout.{program_cells, cells_in};
ghost use Rattle.image.specs.Refusals.{no_of};
ghost use Rattle.job.specs.Job.{image_size, job_image, job_places, job_interval, job_registers, word_count, job_words};
ghost use Rattle.job.specs.Job.{ends_exactly, length_no, job_no, job_scanned};

use image::refusal::Refusal;

// The bytes of a job that ends exactly after its last word, so that every field is inside.
#[derive(Clone, Copy, Debug)]
pub struct Input<'a> {
    pub bytes: &'a [u8],
    pub ghost ends: { ends_exactly bytes.now ≡ true },
}

impl<'a> Input<'a> {
    // Question 10.
    pub fn new(bytes: &'a [u8]) -> Result<Input<'a>, Refusal>
        ensures value { no_of result ≡ length_no bytes.now }
        ensures same { IfOk result (λ input. input.bytes.now ≡ bytes.now) }
    {
        if bytes.len() < 2 {
            return Err(Refusal::Input);
        }
        let n = int64::read_u16(bytes, 0) as usize;
        if bytes.len() < 135 + n {
            return Err(Refusal::Input);
        }
        let words = int64::read_u16(bytes, 133 + n) as usize;
        if bytes.len() != 135 + n + 8 * words {
            return Err(Refusal::Input);
        }
        Ok(Input { bytes })
    }

    fn image_size(&self) -> usize
        ensures { (result ≡ image_size self.now.bytes.now) × (result < 65536) }
    {
        int64::read_u16(self.bytes, 0) as usize
    }

    pub fn image(&self) -> &'a [u8]
        ensures { result.now ≡ job_image self.now.bytes.now }
    {
        let end = 2 + self.image_size();
        &self.bytes[2..end]
    }

    pub fn places(&self) -> u64
        ensures { result ≡ job_places self.now.bytes.now }
    {
        let n = self.image_size();
        u64::from(self.bytes[2 + n])
    }

    pub fn interval(&self) -> u64
        ensures { result ≡ job_interval self.now.bytes.now }
    {
        let n = self.image_size();
        int64::read_u16(self.bytes, 3 + n)
    }

    pub fn word_count(&self) -> usize
        ensures { (result ≡ word_count self.now.bytes.now) × (result < 65536) }
    {
        let n = self.image_size();
        int64::read_u16(self.bytes, 133 + n) as usize
    }

    // The 16 start registers.
    pub fn registers(&self) -> [i64; 16]
        ensures { result ≡ job_registers self.now.bytes.now }
    {
        let mut out = [0i64; 16];
        let at = 5 + self.image_size();
        state::numbers::read_integers(self.bytes, at, &mut out);
        out
    }

    // The words of the call record. This crate alone calls it, with room for as many as the job has.
    pub fn read_words(&self, out: &mut [i64])
        requires { length out.old ≡ word_count self.now.bytes.now }
        ensures { out.new ≡ job_words self.now.bytes.now }
    {
        let at = 135 + self.image_size();
        state::numbers::read_integers(self.bytes, at, out);
    }
}

// A job whose questions were all answered with yes, and its image's program.
#[derive(Clone, Copy, Debug)]
pub struct Accepted<'a> {
    pub input: Input<'a>,
    pub cells: &'a [u64],
    pub ghost accepted: { job_no input.bytes.now ≡ 0 },
    pub ghost read: { cells.now ≡ cells_in (job_image input.bytes.now) },
}

// All questions of a job. Where all are answered with yes, the cells are the image's program (`asked-program` in proofs/Asking.antt); the
// reader has put its questions, so start's own are left. `accept` alone calls it, with the buffer of zeros that it requires.
fn ask_job<'a>(bytes: &'a [u8], cells: &mut [u64]) -> Result<Input<'a>, Refusal>
    requires { cells.old ≡ replicate program_cells 0 }
    ensures value { no_of result ≡ job_no bytes.now }
    ensures cells_after { cells.new ≡ job_scanned bytes.now }
    ensures same { IfOk result (λ input. input.bytes.now ≡ bytes.now) }
{
    let input = Input::new(bytes)?;
    image::reader::scan(input.image(), cells)?;
    let places = input.places();
    let interval = input.interval();
    machine::start::ask_settings(places, interval, 16, input.word_count(), cells.len())?;
    Ok(input)
}

// The accepted job, whose program goes to the lent cells. This crate's exports alone call it, each with a buffer of zeros.
pub fn accept<'a>(bytes: &'a [u8], cells: &'a mut [u64]) -> Result<Accepted<'a>, Refusal>
    requires { cells.old ≡ replicate program_cells 0 }
    ensures value { no_of result ≡ job_no bytes.now }
    ensures same { IfOk result (λ job. job.input.bytes.now ≡ bytes.now) }
{
    let input = ask_job(bytes, cells)?;
    Ok(Accepted { input, cells })
}
