// The archive form of any bytes: the refusals, and the writing.
ghost use Rattle.archive.specs.Answers.{Told};

use crate::writer;
use plan::check;
use plan::refusal::Refusal;

// Writes the archive form of a plan to the start of the out buffer, and answers its length. Bytes behind it do not change; on a refusal no byte does.
pub fn archive(p: &[u8], out: &mut [u8]) -> Result<usize, Refusal>
    ensures { Told result p.now out.old out.new }
{
    let plan = check::check(p)?;
    if out.len() < p.len() {
        return Err(Refusal::ShortPlanBuffer);
    }
    writer::write(plan, out);
    Ok(p.len())
}
