//! The settings of a file that is written, and how it is merged.

ghost use Rattle.std.specs.Prelude.{◌≡◌, ◌≤◌, ◌<◌, IfSome, IfNone};
ghost use Rattle.pdbmerge_c.specs.Fault.{IsEnded, IsTold, no_number};
ghost use Rattle.pdbmerge_c.specs.Merge.{AreAllowed, settings_of};
ghost use Rattle.pdbmerge_c.specs.MergePlan.{CanFollow, guid_choice, on_refused, plan_of};

use crate::fault::{Fault, SETTINGS, tell};
use crate::merge::Choices;
use crate::merge_plan::PlanChoices;
use pdb_info::Settings;
use pdb_merge::Plan;
use run_options::{GuidChoice, OnRefused};
use thiserror::Error;
use uuid::Uuid;

/// The most bytes that the records of a file may have together.
pub(crate) const MOST_BYTES: u32 = 1_073_741_824;

/// A setting that no file can have, or a choice that no merge can follow.
#[derive(Clone, Copy, Debug, Error)]
enum WrongSetting {
    #[error("101 Settings limit {0}")]
    Limit(u32),
    #[error("101 Settings block_size {0}")]
    BlockSize(u32),
    #[error("101 Settings guid {0}")]
    Guid(u32),
    #[error("101 Settings refused {0}")]
    Refused(u32),
    #[error("101 Settings maps {0}")]
    Maps(u32),
}

/// The first setting that no file can have, of choices that have one.
fn wrong_setting(choices: &Choices) -> WrongSetting {
    if choices.limit > MOST_BYTES {
        return WrongSetting::Limit(choices.limit);
    }
    WrongSetting::BlockSize(choices.block_size)
}

/// The settings that were chosen. `None` where no file can have them.
pub(crate) fn settings_from(choices: &Choices) -> Option<Settings>
    ensures value { IfSome result (λ settings. settings ≡ settings_of choices.now) }
    ensures allowed { IfSome result (λ _. AreAllowed choices.now) }
    ensures refused { IfNone result (AreAllowed choices.now → ⊥) }
{
    let guid = Uuid::from_bytes(choices.guid);
    Settings::new(guid, choices.age, choices.limit, choices.block_size)
}

/// Says which of the choices is the first that no file can have.
pub(crate) fn refuse_settings(fault: &mut Fault, choices: &Choices) -> u32
    ensures number { result ≡ 101 }
    ensures told { IsTold fault.new 101 no_number }
    ensures ended { IsEnded fault.new }
{
    tell(fault, SETTINGS, None, &wrong_setting(choices))
}

/// The GUID that a number stands for. `None` where it stands for none.
fn guid_from(number: u32) -> Option<GuidChoice>
    ensures value { IfSome result (λ guid. guid ≡ guid_choice number) }
    ensures few { IfSome result (λ _. number ≤ 1) }
    ensures refused { IfNone result (1 < number) }
{
    match number {
        0 => Some(GuidChoice::Given),
        1 => Some(GuidChoice::OfTypes),
        _ => None,
    }
}

/// What becomes of a file that is refused, by its number. `None` where it stands for nothing.
fn refused_from(number: u32) -> Option<OnRefused>
    ensures value { IfSome result (λ refused. refused ≡ on_refused number) }
    ensures few { IfSome result (λ _. number ≤ 1) }
    ensures refused { IfNone result (1 < number) }
{
    match number {
        0 => Some(OnRefused::Stop),
        1 => Some(OnRefused::Skip),
        _ => None,
    }
}

/// The plan that was chosen. `None` where no merge can follow it.
pub(crate) fn plan_from(choices: &PlanChoices) -> Option<Plan>
    ensures value { IfSome result (λ plan. plan ≡ plan_of choices.now) }
    ensures allowed { IfSome result (λ _. CanFollow choices.now) }
    ensures refused { IfNone result (CanFollow choices.now → ⊥) }
{
    let settings = settings_from(&choices.settings)?;
    let guid = guid_from(choices.guid)?;
    let refused = refused_from(choices.refused)?;
    if choices.maps > 1 {
        return None;
    }
    Some(Plan {
        settings,
        guid,
        refused,
    })
}

/// The first choice that no merge can follow, where a file can have the settings.
fn wrong_choice(choices: &PlanChoices) -> WrongSetting {
    if choices.guid > 1 {
        return WrongSetting::Guid(choices.guid);
    }
    if choices.refused > 1 {
        return WrongSetting::Refused(choices.refused);
    }
    WrongSetting::Maps(choices.maps)
}

/// Says which of the choices is the first that no merge can follow.
pub(crate) fn refuse_plan(fault: &mut Fault, choices: &PlanChoices) -> u32
    ensures number { result ≡ 101 }
    ensures told { IsTold fault.new 101 no_number }
    ensures ended { IsEnded fault.new }
{
    match settings_from(&choices.settings) {
        Some(_) => tell(fault, SETTINGS, None, &wrong_choice(choices)),
        None => refuse_settings(fault, &choices.settings),
    }
}
