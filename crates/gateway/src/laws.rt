// What is proved of whole lists of calls from C: each theorem is the contract of an empty function, so that the crate is refused without its proof.
ghost use Rattle.gateway.specs.Images.{ImagesAsBooks, ZeroAccepts, NoImage};
ghost use Rattle.gateway.specs.Through.{BareThroughOneTally, ImagesThroughOneTally};

#[tactic(auto, using(crate::proofs::Imaged::images_as_books))]
pub fn images_as_books()
    ensures { ImagesAsBooks }
{}

#[tactic(auto, using(crate::proofs::Zeros::zero_accepts))]
pub fn zero_accepts()
    ensures { ZeroAccepts }
{}

#[tactic(auto, using(crate::proofs::Imaged::no_image))]
pub fn no_image()
    ensures { NoImage }
{}

#[tactic(auto, using(crate::proofs::Proved::bare_through_one_tally))]
pub fn bare_through_one_tally()
    ensures { BareThroughOneTally }
{}

#[tactic(auto, using(crate::proofs::Proved::images_through_one_tally))]
pub fn images_through_one_tally()
    ensures { ImagesThroughOneTally }
{}
