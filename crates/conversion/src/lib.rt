// A plan's bytes converted: every Deferrable guest is made a Periodic one with the same numbers.
#![tactic(auto)]

ghost use Rattle.std.specs.Prelude.{◌≡◌};
ghost use Rattle.plan.specs.First.{unless_refused};
ghost use Rattle.conversion.specs.Outcome.{convert_refusal};
ghost use Rattle.conversion.specs.Promises.{Converts};

use plan::Refusal;

mod converter;

// Whether the plan's bytes are read and an output of so many bytes has room, or else the refusal: the reading order,
// then 12.
fn check(bytes: &[u8], room: usize) -> Result<(), Refusal>
    ensures { result ≡ unless_refused (convert_refusal bytes.now room) tt }
{
    blockfile::check_blocks(bytes, true)?;
    if room < bytes.len() {
        return Err(Refusal {
            number: 12,
            place: 0,
        });
    }
    Ok(())
}

// Writes the plan with every guest made Periodic to the first bytes of the output; a refusal writes nothing.
pub fn convert(plan: &[u8], out: &mut [u8]) -> Result<(), Refusal>
    ensures { Converts plan.now out.old result out.new }
{
    check(plan, out.len())?;
    converter::put_converted(plan, out);
    Ok(())
}
