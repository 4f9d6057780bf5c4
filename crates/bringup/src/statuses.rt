// The device status that goes with each state: a byte of flags, as it stands in the device's register.
ghost use Rattle.std.specs.Prelude.{◌≡◌, ℕ};
ghost use Rattle.bringup.specs.Statuses.{reset_status, known_status, agreed_status, ready_status};

use crate::states::{Agreed, DriverOk, Known, Reset, Sized};

// The flags of the status.
const ACKNOWLEDGE: u8 = 1;

const DRIVER: u8 = 2;

const DRIVER_OK: u8 = 4;

const FEATURES_OK: u8 = 8;

// The flags of each state: a step adds flags and takes none away.
const WHEN_RESET: u8 = 0;

const WHEN_KNOWN: u8 = ACKNOWLEDGE | DRIVER;

const WHEN_AGREED: u8 = WHEN_KNOWN | FEATURES_OK;

const WHEN_READY: u8 = WHEN_AGREED | DRIVER_OK;

// A state of bring-up.
pub trait State {
    const FLAGS: u8;

    ghost FLAGS: { ℕ };

    final fn status(&self) -> u8
        ensures of_the_state { result ≡ FLAGS }
    {
        Self::FLAGS
    }
}

impl State for Reset {
    const FLAGS: u8 = WHEN_RESET;

    ghost FLAGS = { reset_status };
}

impl State for Known {
    const FLAGS: u8 = WHEN_KNOWN;

    ghost FLAGS = { known_status };
}

impl State for Agreed {
    const FLAGS: u8 = WHEN_AGREED;

    ghost FLAGS = { agreed_status };
}

// a capacity does not show in the status
impl State for Sized {
    const FLAGS: u8 = WHEN_AGREED;

    ghost FLAGS = { agreed_status };
}

impl State for DriverOk {
    const FLAGS: u8 = WHEN_READY;

    ghost FLAGS = { ready_status };
}
