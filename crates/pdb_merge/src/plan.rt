//! What a merge is asked for.

ghost use Rattle.std.specs.Prelude.{◌≡◌};
ghost use Rattle.pdb_merge.specs.Guid.{chosen, named};

use crate::guid::guid_of_types;
use pdb_info::Settings;
use run_options::{GuidChoice, OnRefused};
use std::alloc::Allocator;
use type_table::Canon;

/// These settings, with the GUID of the types of a canonical list.
fn named<A: Allocator>(settings: &Settings, canon: &Canon<A>) -> Settings
    ensures { result ≡ named settings.now canon.now }
{
    let (limit, block_size) = (settings.limit(), settings.block_size());
    let guid = guid_of_types(canon);
    let Some(named) = Settings::new(guid, settings.age(), limit, block_size) else {
        unreachable!()
    };
    named
}

/// How files are merged into one.
#[derive(Clone, Copy, Debug)]
pub struct Plan {
    /// What the file is written with, and how many bytes its types may have together.
    pub settings: Settings,
    /// Whether its GUID is that of the settings.
    pub guid: GuidChoice,
    /// What becomes of a file that is refused.
    pub refused: OnRefused,
}

impl Plan {
    /// The plan to write a file with just these settings, and to stop at the first file that is refused.
    pub fn new(settings: Settings) -> Plan
        ensures settings { result.settings ≡ settings }
        ensures guid { result.guid ≡ GuidChoice.Given }
        ensures refused { result.refused ≡ OnRefused.Stop }
    {
        Plan {
            settings,
            guid: GuidChoice::Given,
            refused: OnRefused::Stop,
        }
    }

    /// The settings of the file for the types of a canonical list.
    pub(crate) fn settings_for<A: Allocator>(&self, canon: &Canon<A>) -> Settings
        ensures { result ≡ chosen self.now.guid self.now.settings canon.now }
    {
        match self.guid {
            GuidChoice::Given => self.settings,
            GuidChoice::OfTypes => named(&self.settings, canon),
        }
    }
}
