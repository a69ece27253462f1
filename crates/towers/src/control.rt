// The control of a tower: its limit and its two probes are read, and the burner's valve is set by them.
ghost use Rattle.std.specs.Prelude.{◌≡◌};
ghost use Rattle.towers.specs.Control.{controlled, regulated, ClosesOnSilence};

use super::tower::Tower;
use bus::contract::Bus;
use dryer::control;
use dryer::control::Round;

// One round: reads the limit and both probes, and sets the valve.
pub fn control<B: Bus>(bus: &mut B, tower: Tower) -> Round
    ensures round { result ≡ controlled tower (B.Bus.cells bus.old) }
    ensures after { B.Bus.cells bus.new ≡ regulated tower (B.Bus.cells bus.old) }
    ensures kept { B.Bus.shape bus.new ≡ B.Bus.shape bus.old }
    ensures safe { ClosesOnSilence tower (B.Bus.cells bus.old) (B.Bus.cells bus.new) }
{
    let limit = bus.read(tower.limit_at());
    control::control(bus, tower.places(), limit)
}
