//! The shares of stations add up.
ghost use Rattle.std.specs.Prelude.{◌≡◌};
ghost use Rattle.table_theory.specs.Sharing.{given, kept};
ghost use Rattle.turn_io.specs.Accounts.{AddsUp};
ghost use Rattle.processor.specs.Accounts.{Shares};
ghost use Rattle.stations.specs.Shares.{both_shares, each_share, no_shares};

/// Shares add up, in any order. The part that a split keeps and the part that it gives make up the whole.
pub fn shares_add_up()
    ensures shares { AddsUp no_shares both_shares }
    ensures any_order { (a b : Shares) → both_shares a b ≡ both_shares b a }
    ensures parted { (a : Shares) → both_shares (each_share kept a) (each_share given a) ≡ a }
{}
