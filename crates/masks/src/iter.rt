// The runs of a mask, one after another.
use bits::mask::Mask;

// The rows of the mask from row `at` on. The walks of `bits` have such a pair too, private there and bounded; sharing it would take as many accessors as there are fields.
#[derive(Clone, Copy)]
pub struct MaskRunIter<'a> {
    pub(crate) mask: Mask<'a>,
    pub(crate) at: usize,
}
