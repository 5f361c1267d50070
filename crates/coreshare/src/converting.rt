// A plan's bytes with every Deferrable guest made Periodic.
ghost use Rattle.coreshare.specs.Promises.{TellsConverted};

use crate::telling::tell_refusal;
use plan::Refusal;

#[unsafe(no_mangle)]
pub extern "C" fn cs_convert(plan: &[u8], out: &mut [u8]) -> Refusal
    ensures { TellsConverted plan.now out.old result out.new }
{
    tell_refusal(conversion::convert(plan, out))
}
