//! Consequences of the shares of quajects for the ends that come home.
ghost use Rattle.std.specs.Prelude.{◌≡◌, ℕ, map};
ghost use Rattle.proc_chain.specs.declared.rule.Pact.{Pact};
ghost use Rattle.proc_chain.specs.Own.{View};
ghost use Rattle.quajects.specs.declared.any.AnyQuaject.{AnyQuaject};
ghost use Rattle.quajects.specs.declared.home.Home.{Home};
ghost use Rattle.quajects.specs.declared.world.Queues.{Queues};
ghost use Rattle.quajects.specs.Homes.{CameHome};
ghost use Rattle.quajects.specs.Ports.{post_at};
ghost use Rattle.boot_objects.specs.Shares.{post_shares, quaject_shares};

/// The ends that come home from a chain have the shares that the ends of the chain's quaject had when it was given to
/// it.
pub fn shares_come_home()
    ensures { (pact : Pact Queues AnyQuaject) (first : ℕ) (v : View) (home : Home) → CameHome pact first v home
        → post_shares (map post_at home.small) (map post_at home.large) ≡ quaject_shares pact.opening.value }
{}
