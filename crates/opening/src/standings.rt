// The level and mark of each group at an opening: a group with new limits starts the season narrow.
ghost use Rattle.std.specs.Prelude.{◌≡◌, ℕ, ◌<◌, get_or};
ghost use Rattle.record.specs.History.{products_of};
ghost use Rattle.record.specs.State.{group_count};
ghost use Rattle.book.specs.Book.{no_standing};
ghost use Rattle.opening.specs.Opens.{is_one_renewed, standing_on};

use book::Standing;
use grain::PRODUCT_COUNT;
use record::GROUP_COUNT;

// The initial level, with no mark, for a group that gets new limits.
fn standing_on(is_renewed: bool, standing: Standing) -> Standing
    ensures { result ≡ standing_on is_renewed standing }
{
    if is_renewed {
        return Standing::default();
    }
    standing
}

// `renewed` says of each product whether it gets new limits: one that does brings its whole group to the initial level.
#[tactic(auto, using(record::proofs::GroupTable::group_small))]
pub(crate) fn standings_on(
    renewed: &[bool; PRODUCT_COUNT],
    standings: [Standing; GROUP_COUNT],
) -> [Standing; GROUP_COUNT]
    ensures { (g : ℕ) → g < group_count → get_or result g no_standing ≡ standing_on (is_one_renewed renewed.now (products_of g)) (get_or standings g no_standing) }
{
    let mut after = standings;
    for (p, is_renewed) in renewed.iter().enumerate() {
        let g = book::group_of(p);
        let standing = after[g];
        after[g] = standing_on(*is_renewed, standing);
    }
    after
}
