// How the tests say what a call told.
use refusals::fault::{BitsFault, ReaderFault, SelectionFault};
use refusals::refusal::{Layer, Refusal};

// What a call told, beside its answer.
pub(crate) fn told<T: Drop>(r: Result<T, SelectionFault>) -> Result<(), Refusal> {
    match r {
        Ok(_) => Ok(()),
        Err(fault) => Err(fault.refusal()),
    }
}

// The same of a call that was refused.
pub(crate) fn refused(number: u8, place: usize, layer: Layer) -> Result<(), Refusal> {
    Err(Refusal {
        number,
        place,
        layer,
    })
}

#[test]
fn a_fault_is_carried_whole(rt: HostRuntime) {
    let deep = ReaderFault::Selection(SelectionFault::Bits(BitsFault::PastBytes(7)));
    assert_eq!(rt; Err(deep.refusal()), refused(2, 7, Layer::Bits));
    let read = ReaderFault::ReadTooMuch(3);
    assert_eq!(rt; Err(read.refusal()), refused(11, 3, Layer::Reader));
    let bytes = BitsFault::BytesTooFew(2);
    assert_eq!(rt; Err(bytes.refusal()), refused(12, 2, Layer::Bits));
}
