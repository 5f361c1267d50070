// A damaged plan file salvaged. The outcome crosses as it is.
ghost use Rattle.salvage.specs.Promises.{Salvages};

use salvage::Salvaged;

#[unsafe(no_mangle)]
pub extern "C" fn cs_salvage(file: &[u8], out: &mut [u8]) -> Salvaged
    ensures { Salvages file.now out.old result out.new }
{
    salvage::salvage(file, out)
}
