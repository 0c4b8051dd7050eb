//! A device that shows nothing.
ghost use Rattle.std.specs.Prelude.{◌≡◌, None, false, true};

use crate::answers::Sent;
use crate::devices::Device;

/// Takes every operation, keeps and tells none, never fails and takes no memory: the device of a screen
/// that nobody looks at.
#[derive(Clone, Copy, Default, Debug)]
pub struct NullDevice;

impl NullDevice {
    pub fn new() -> NullDevice
        ensures { result ≡ record {} }
    {
        NullDevice
    }
}

impl Device for NullDevice {
    ghost use Rattle.cl_outside.specs.Untied.{untied};

    ghost picture = { λ _. None };

    ghost broken = { λ _. false };

    ghost cleared = { λ _. true };

    ghost faults = { λ _. 0 };

    ghost tied = { λ _. untied None false None };

    fn clear(&mut self, _width: u16, _height: u16) -> Sent {
        Sent::Done
    }

    fn span(&mut self, _x: u16, _y: u16, _ink: u8, _glyphs: &[u8]) -> Sent {
        Sent::Done
    }
}
