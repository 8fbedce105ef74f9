// How answers look from C: a flag, the number of an answer, a value behind a pointer, and a part that is copied.
ghost use Rattle.std.specs.Prelude.{◌≡◌};
ghost use Rattle.format.specs.Answers.{stored_with};
ghost use Rattle.format.specs.Totals as Totals;
ghost use Rattle.format.specs.Totals.{counts};
ghost use Rattle.boundary.specs.Boundary as Boundary;
ghost use Rattle.boundary.specs.Boundary.{refusal, value_or, status, warnings_of, output, part_into};

use format::{Error, Reading, WARNING_KINDS, row};

// 1 for true, 0 for false.
pub fn flag(b: bool) -> u32
    ensures { result ≡ Boundary.flag b }
{
    u32::from(b)
}

// The number of an answer: 0, or the refusal's.
pub fn number<T: Drop>(answer: Result<T, Error>) -> u32
    ensures { result ≡ refusal answer }
{
    match answer {
        Ok(_) => 0,
        Err(e) => u32::from(e),
    }
}

// Sets the output if there is a value; returns the number of the answer.
pub fn told<T: Drop>(answer: Result<T, Error>, output: &mut T) -> u32
    ensures value { result ≡ refusal answer }
    ensures output_after { output.new ≡ value_or output.old answer }
{
    match answer {
        Ok(value) => {
            *output = value;
            0
        }
        Err(e) => u32::from(e),
    }
}

// Sets the count of what was read, if it was not refused, and the warnings; returns the number of the answer.
pub fn told_reading(read: Reading, count: &mut usize, warnings: &mut [usize; WARNING_KINDS]) -> u32
    ensures value { result ≡ status (stored_with read.answer (counts read.warnings)) }
    ensures count_after { count.new ≡ output (λ n. n) count.old (stored_with read.answer (counts read.warnings)) }
    ensures warnings_after { warnings.new ≡ Totals.row (warnings_of (stored_with read.answer (counts read.warnings))) }
{
    *warnings = row(read.warnings);
    told(read.answer, count)
}

// Copies ints into the front of out.
#[tactic(auto, unfolding(crate::specs::Boundary::part_into, definitions::specs::Stored::stored, ints::specs::Copies::copy_at))]
pub fn part_into(part: &[i32], out: &mut [i32], count: &mut usize) -> u32
    ensures value { result ≡ status (part_into part.now out.old).answer }
    ensures out_after { out.new ≡ (part_into part.now out.old).out }
    ensures count_after { count.new ≡ output (λ n. n) count.old (part_into part.now out.old).answer }
{
    if ints::copy_into(out, 0, part) {
        *count = part.len();
        return 0;
    }
    u32::from(Error::CapacityError)
}
