// Room in a lent buffer, counted down, so that no total can overflow: what is left, or none once it was too little.
ghost use Rattle.std.specs.Prelude.{◌≡◌};
ghost use Rattle.listing.specs.Rooms.{spent};

#[tactic(auto, unfolding(crate::specs::Rooms::spent))]
pub(crate) fn spend(room: Option<usize>, n: usize) -> Option<usize>
    ensures { result ≡ spent room n }
{
    room?.checked_sub(n)
}
