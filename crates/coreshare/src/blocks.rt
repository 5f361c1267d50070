// Plan blocks and records. A found part of the bytes does not cross to C; its place does.
ghost use Rattle.coreshare.specs.Promises.{TellsReading, TellsCheck, TellsWrite, TellsPlace};

use crate::telling::tell_refusal;
use plan::{Guest, Plan, Refusal};
use planfile::Reading;

#[unsafe(no_mangle)]
pub extern "C" fn cs_read(bytes: &[u8]) -> Reading
    ensures { TellsReading bytes.now result }
{
    match planfile::read(bytes) {
        Ok(plan) => Reading {
            refusal: Refusal {
                number: 0,
                place: 0,
            },
            plan,
        },
        Err(refusal) => Reading {
            refusal,
            plan: plan::blank_plan(),
        },
    }
}

#[unsafe(no_mangle)]
pub extern "C" fn cs_check(plan: Plan) -> Refusal
    ensures { TellsCheck plan result }
{
    tell_refusal(plan::check(&plan))
}

#[unsafe(no_mangle)]
pub extern "C" fn cs_write(guest: Guest, place: u32, buf: &mut [u8]) -> Refusal
    ensures { TellsWrite guest place buf.old result buf.new }
{
    tell_refusal(blockwriter::write(guest, place, buf))
}

#[unsafe(no_mangle)]
pub extern "C" fn cs_find(bytes: &[u8], id: u32) -> Refusal
    ensures { TellsPlace bytes.now id result }
{
    match planfile::find_place(bytes, id) {
        Ok(place) => Refusal { number: 0, place },
        Err(refusal) => refusal,
    }
}
