// Laws of copiers, as the contracts of functions that do nothing.

ghost use Rattle.jm_par_copy.specs.Aside.{GivenIsScanned};
ghost use Rattle.jm_par_copy.specs.Copiers.{AgesAreByLane, AllAreReady, BackKeeps, BackKeepsPlaced, EndIsImage, FreshAreCopying, RoundKeeps, RoundKeepsPlaced};
ghost use Rattle.jm_par_copy.specs.Dealing.{DealKeepsAll, DealKeepsPlaced};
ghost use Rattle.jm_par_copy.specs.Ending.{EndIsCollected, HeldIsLoads};
ghost use Rattle.jm_par_copy.specs.Fresh.{FreshIsWorking};
ghost use Rattle.jm_par_copy.specs.Giving.{GivesBack};
ghost use Rattle.jm_par_copy.specs.Moves.{BlockIsBack, BlockIsOut};
ghost use Rattle.jm_par_copy.specs.Seats.{SeatedAreFresh};
ghost use Rattle.jm_par_copy.specs.Together.{DealKeeps};

/// What is copied stays so where it is dealt out: each copier's share, whatever places it has.
pub fn a_deal_keeps_the_copies()
    ensures { DealKeeps }
{}

/// A block that is taken out of a lane has the objects that lay in it, and the lane the others; put
/// back, the lane has both.
pub fn a_block_moves()
    ensures out { BlockIsOut }
    ensures back { BlockIsBack }
{}

/// Before its first claim a copier knows and holds nothing, and its invariant holds.
pub fn a_fresh_copier_works()
    ensures { FreshIsWorking }
{}

/// Where no other object lies among the places of a given block, the invariant with the block put first is
/// that with the block among what else is held.
pub fn a_given_block_is_scanned()
    ensures { GivenIsScanned }
{}

/// A block of the copier's own, which it has stopped filling and of which nothing is scanned, is given back:
/// it holds the block among its given ones then, and the rest as before.
pub fn a_closed_block_is_given_back()
    ensures { GivesBack }
{}

/// Where all copiers together hold what was won, by what is known, each is ready for a round.
pub fn all_copiers_are_ready()
    ensures { AllAreReady }
{}

/// A round of all in which no growth was refused keeps it: no place is held by two afterwards, and what they
/// hold is what they have won by then.
pub fn a_round_is_kept()
    ensures { RoundKeeps }
{}

/// Where each copier gives back what it has stopped filling, it is kept too.
pub fn giving_back_keeps()
    ensures { BackKeeps }
{}

/// Where all have ended and have met, what they hold is the image, by what they have won.
pub fn the_end_is_the_image()
    ensures { EndIsImage }
{}

/// Before the first claim all hold nothing together, and it holds.
pub fn fresh_copiers_are_copying()
    ensures { FreshAreCopying }
{}

/// Where the blocks of all are dealt out anew, whoever gets which, it is kept too.
pub fn dealing_keeps()
    ensures { DealKeepsAll }
{}

/// All copiers with the seats of a fresh table, each with stores of its own, are before their first claim, and no
/// two have one number.
pub fn seated_copiers_are_fresh()
    ensures { SeatedAreFresh }
{}

/// Where all copiers fill two lanes, what they hold lies in these, and has age 1 in the lane of the young and age 2
/// in the other.
pub fn ages_are_by_lane()
    ensures { AgesAreByLane }
{}

/// Where copiers fill two lanes, each of the old one its own blocks from where it begins in the old store, no step changes
/// that: a round, giving back and dealing keep it, of their own objects and of the blocks that were moved.
pub fn what_is_held_is_placed()
    ensures round { RoundKeepsPlaced }
    ensures back { BackKeepsPlaced }
    ensures dealt { DealKeepsPlaced }
{}

/// Between rounds what all have in these lanes can be put into one store of each: no place is held twice, and each
/// block that was moved has one of the two lanes.
pub fn what_is_held_can_be_put_together()
    ensures { HeldIsLoads }
{}

/// Where all have ended and have met, and what they have was put together, the old store's objects in the blocks in which
/// they went on with it, the collection is what a collector promises, and the map of its image is the union of the wins.
pub fn the_end_is_collected()
    ensures { EndIsCollected }
{}
