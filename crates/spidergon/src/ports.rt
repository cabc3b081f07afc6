//! The ports of a switch.

ghost use Rattle.std.specs.Prelude.{◌≡◌, ◌+◌, ◌*◌, ◌%◌, ◌^◌, ◌<◌};
ghost use Rattle.spidergon.specs.Ports.{number};

/// A port of a switch: the local one, the one to the next switch, the one to the switch before, or the one across.
#[derive(Clone, Copy, PartialEq, Eq, Debug)]
pub(crate) enum Port {
    Local,
    Next,
    Before,
    Across,
}

impl Port {
    // The port by which a channel leaves its switch.
    pub(crate) fn of(channel: u16) -> Port
        ensures { number result ≡ channel % 4 }
    {
        match channel % 4 {
            0 => Port::Local,
            1 => Port::Next,
            2 => Port::Before,
            _ => Port::Across,
        }
    }

    // The channel that leaves a switch by the port.
    pub(crate) fn channel(self, switch: u16) -> u16
        requires { switch < 2 ^ 14 }
        ensures { result ≡ 4 * switch + number self }
    {
        4 * switch + self as u16
    }
}
