//! Laws that tie the calls of this crate to the plain state: each is the contract of a function that does nothing.
ghost use Rattle.std.specs.Prelude.{ℕ, ◌≡◌, ◌≢◌, List, [], ◌∷◌, AllPairs, map, reverse};
ghost use Rattle.std.specs.List.{flat_map};
ghost use Rattle.rt_plain.specs.kernel.State.{State, Arriving};
ghost use Rattle.rt_plain.specs.kernel.Effects.{no_effect, and_then};
ghost use Rattle.rt_plain.specs.kernel.DeviceCalls.{arrival_effect};
ghost use Rattle.rt_plain.specs.kernel.Ticks.{deliveries, transmissions};
ghost use Rattle.kernel_devices.specs.Acts.{device_after_sending, sent_lines};
ghost use Rattle.kernel_devices.specs.Deviced.{arrivals_at, names_of};

/// What arrives in a tick may be taken and delivered one by one, as long as something of this moment is left.
pub fn deliveries_go_one_by_one()
    ensures none { (s : State) → arrivals_at s.moment s.arrivals ≡ [] → deliveries s ≡ no_effect s }
    ensures some { (s : State) (a : Arriving) (rest : List Arriving) → s.arrivals ≡ a ∷ rest → a.moment ≡ s.moment →
        deliveries s ≡ and_then (arrival_effect a (record s { arrivals = rest })) deliveries }
{}

/// What the devices send in a tick is what `Devices::drain` makes of them, where no two have one name.
pub fn transmissions_are_drained()
    ensures { (s : State) → AllPairs (λ one other. one ≢ other) (names_of s.devices) →
        transmissions s ≡ record { state = record s { devices = map device_after_sending s.devices }; lines = flat_map sent_lines (reverse s.devices) } }
{}
