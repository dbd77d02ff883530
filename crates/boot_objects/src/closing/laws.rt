//! Consequences of the laws of quajects and of shares for the ends that come home.
ghost use Rattle.std.specs.Prelude.{◌≡◌, List, length, map};
ghost use Rattle.std.specs.List.{All};
ghost use Rattle.boot_objects.specs.Comings.{ShutNothing};
ghost use Rattle.boot_objects.specs.RawEnds.{TookRaws};
ghost use Rattle.boot_objects.specs.Retirals.{HaveRetired};
ghost use Rattle.boot_objects.specs.Wholes.{HasWholes, HaveBack};
ghost use Rattle.boot_objects.specs.declared.device.Device.{Device};
ghost use Rattle.boot_objects.specs.Devices.{AreDevicesOf};
ghost use Rattle.boot_objects.specs.Objects.{HaveAll};
ghost use Rattle.proc_chain.specs.Handles.{opening_of};
ghost use Rattle.processor.specs.declared.shared.Shared.{Shared};
ghost use Rattle.processor.specs.declared.station.Parts.{Parts};
ghost use Rattle.processor.specs.Accounts.{shares};
ghost use Rattle.quajects.specs.Anys.{HasShutNothing};
ghost use Rattle.quajects.specs.declared.home.Home.{Home};
ghost use Rattle.quajects.specs.declared.raw.RawTty.{RawTty};

/// If the quajects that were given to the chains had shut no queue, no end that came home from the chains shut a queue.
/// No note shuts a queue.
pub fn homes_shut_nothing()
    ensures { (shared : Shared) (parts : Parts) (homes : List Home)
        → HaveRetired shared.chains.items parts.chains.items homes
        → All HasShutNothing (map opening_of shared.chains.items) → All ShutNothing homes }
{}

/// Conditions: the first owner had all, together with the quajects and the devices. The last owner has the shares that
/// the first had. The devices' raw ttys came back with their shares and were joined. Then these parts, together with
/// the quajects, have the whole of each object: so all can be closed.
pub fn wholes_come_home()
    ensures { (shared : Shared) (first last parts : Parts) (devices : List Device) (ttys : List RawTty)
        → HaveAll shared first devices → AreDevicesOf shared.plan shared.queues shared.chains.items devices
        → shares last ≡ shares first → HaveBack devices ttys
        → TookRaws (length shared.plan.queues) (length shared.plan.movers) ttys last parts → HasWholes shared parts }
{}
