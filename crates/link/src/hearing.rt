// What one octet of a hunt or of a marker does to a receiver's mode, and which report it gives.
ghost use Rattle.std.specs.Prelude.{◌≡◌, true, if◌then◌else◌, Some, None};
ghost use Rattle.marker.specs.Reading.{count_read};
ghost use Rattle.link.specs.ReceiverFits.{lock_is_fit};
ghost use Rattle.link.specs.Rules.{gives_lock};
ghost use Rattle.link.specs.Hearing.{Hunted, Judged};

use crate::{Kind, Lock, Mode, Report, Window};
use marker::{first_cause, read_marker};
use settings::Settings;

// The count of a marker that gives lock, if the octets do: the sync word, right parity, a count below S.
fn lock_found(settings: &Settings, octets: &[u8; 7]) -> Option<usize>
    ensures { result ≡ (if gives_lock settings.now octets.now then Some (count_read octets.now) else None) }
{
    read_marker(octets)
        .filter(|read| {
            read.sync_right && read.parity_right && read.count < settings.subframes()
        })
        .map(|read| read.count)
}

// One octet of a hunt.
pub(crate) fn hunt(settings: &Settings, window: Window, octet: u8) -> (Mode, Option<Report>)
    ensures { Hunted settings.now window octet result.0 result.1 }
{
    if window.held < 6 {
        return (Mode::Hunting(window.with(octet)), None);
    }
    let Some(count) = lock_found(settings, &window.seven(octet)) else {
        return (Mode::Hunting(window.latest_six(octet)), None);
    };
    let report = Report {
        kind: Kind::Gained,
        count,
        digits: 0,
        fell: false,
    };
    (Mode::Reading(Lock::at(count), 0), Some(report))
}

// One octet of a marker that is expected.
pub(crate) fn judge(
    settings: &Settings,
    lock: Lock,
    window: Window,
    octet: u8,
) -> (Mode, Option<Report>)
    requires { lock_is_fit settings.now lock ≡ true }
    ensures { Judged settings.now lock window octet result.0 result.1 }
{
    if window.held < 6 {
        return (Mode::Checking(lock, window.with(octet)), None);
    }
    let octets = window.seven(octet);
    let cause = first_cause(&octets, lock.count);
    let report = lock.judged_report(settings, &octets, cause);
    (lock.judged_mode(settings, cause), Some(report))
}
