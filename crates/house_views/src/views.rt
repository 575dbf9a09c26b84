//! Whether two keeps show the same.
ghost use Rattle.std.specs.Prelude.{◌≡◌, ◌↔◌, true, IfOk};
ghost use Rattle.house_rows.specs.Found.{waiting_for};
ghost use Rattle.house_rows.specs.Questions.{waiting};
ghost use Rattle.house_rows.specs.Runs.{Agrees};
ghost use Rattle.house_rows.specs.Taken.{AllWaitingFit, PublicRowsFit};
ghost use Rattle.house_rows.specs.Views.{public_view};
ghost use Rattle.house_views.specs.Compares.{Compares, OverHistories};
ghost use Rattle.house_views.specs.Views.{HaveSameRows, HaveSameView, ViewRowsFit};

use crate::tables::{have_same_open, have_same_rows};
use house_rows::{Keep, KeepFault};

/// Whether everybody may see the same in both, over tables of the same settings. That every public
/// row fits, in both, is enough for it not to be damaged.
pub fn have_same_public<K: Keep>(left: &mut K, right: &mut K) -> Result<bool, KeepFault>
    ensures tables { Compares K.Keep left.old left.new right.old right.new result
        (λ t u same. (same ≡ true) ↔ HaveSameRows t u) PublicRowsFit }
    ensures views { K.is_honest left.new → K.is_honest right.new → IfOk result (λ same.
        OverHistories (K.content left.old) (K.content right.old) (λ settings h k.
        (same ≡ true) ↔ (public_view settings h ≡ public_view settings k))) }
{
    have_same_rows(left, right)
}

/// Whether the same questions wait for a member's answer in both.
pub fn have_same_waiting<K: Keep>(
    left: &mut K,
    right: &mut K,
    member: u64,
) -> Result<bool, KeepFault>
    ensures tables { Compares K.Keep left.old left.new right.old right.new result
        (λ t u same. (same ≡ true) ↔ (waiting_for t member ≡ waiting_for u member))
        (AllWaitingFit member) }
    ensures views { K.is_honest left.new → K.is_honest right.new → IfOk result (λ same.
        OverHistories (K.content left.old) (K.content right.old) (λ settings h k.
        (same ≡ true) ↔ (waiting h member ≡ waiting k member))) }
{
    have_same_open(left, right, member)
}

/// Whether what is public and what waits for a member agree.
pub fn agree<K: Keep>(left: &mut K, right: &mut K, member: u64) -> Result<bool, KeepFault>
    ensures tables { Compares K.Keep left.old left.new right.old right.new result
        (λ t u same. (same ≡ true) ↔ HaveSameView member t u) (ViewRowsFit member) }
    ensures views { K.is_honest left.new → K.is_honest right.new → IfOk result (λ same.
        OverHistories (K.content left.old) (K.content right.old) (λ settings h k.
        (same ≡ true) ↔ Agrees settings member h k)) }
{
    if !have_same_public(left, right)? {
        return Ok(false);
    }
    let same = have_same_waiting(left, right, member)?;
    Ok(same)
}
