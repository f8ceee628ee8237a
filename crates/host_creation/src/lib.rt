// Creation by numbers, in place of enums, which do not cross to C.
#![tactic(auto)]

ghost use Rattle.std.specs.Prelude.{◌≡◌};
ghost use Rattle.host_creation.specs.Numbers.{SettingsNumbered, created_by, numbered};

use base_shared::Refusal;
use memory_layout::MemoryLayout;
use vrc6::Board;
use vrc6::board::Changed;
use vrc6_banking::banking::{Mirroring, Revision, Settings, UnknownNumber};

// The settings of creation by numbers: mirroring 0 to 4, revision 0 for A and 1 for B, bus setting 0 for off and 1 for on.
#[repr(C)]
#[derive(Clone, Copy, Debug, PartialEq, Eq)]
pub struct NumberedSettings {
    pub mirroring: u8,
    pub revision: u8,
    pub open_bus: u8,
}

impl NumberedSettings {
    // The original's board: no open bus.
    pub fn new(mirroring: u8, revision: u8) -> Self
        ensures { result ≡ numbered mirroring revision }
    {
        Self {
            mirroring,
            revision,
            open_bus: 0,
        }
    }
}

// The settings that numbers name, if each number names something.
impl TryFrom<NumberedSettings> for Settings {
    type Error = UnknownNumber;

    ghost try_from_gives = { SettingsNumbered };

    fn try_from(numbers: NumberedSettings) -> Result<Settings, UnknownNumber> {
        Ok(Settings {
            mirroring: Mirroring::try_from(numbers.mirroring)?,
            revision: Revision::try_from(numbers.revision)?,
            open_bus: match numbers.open_bus {
                0 => false,
                1 => true,
                other => return Err(UnknownNumber(other)),
            },
        })
    }
}

// Create refuses a number that names nothing by 3, after conditions 1 and 2.
#[tactic(auto, using(crate::proofs::Numbers::named))]
pub fn create_numbered(
    layout: MemoryLayout,
    settings: NumberedSettings,
    fixed: &[u8],
    changing: &[u8],
) -> Changed
    ensures { result ≡ created_by layout settings fixed.now changing.now }
{
    if let Ok(named) = Settings::try_from(settings) {
        return Board::create(layout, named, fixed, changing);
    }
    match layout.check(fixed.len(), changing.len()) {
        Ok(_) => Board::refused(Refusal::Range),
        Err(refusal) => Board::refused(refusal),
    }
}
