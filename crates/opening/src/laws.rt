// What is proved of every opening: each theorem is the contract of an empty function, so that the crate is refused without its proof.
ghost use Rattle.opening.specs.SeasonStart.{SeasonStart};

#[tactic(auto, using(crate::proofs::SeasonStarts::season_start))]
pub fn season_start()
    ensures { SeasonStart }
{}
