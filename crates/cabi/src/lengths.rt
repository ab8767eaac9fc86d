// The lengths of the slices that a recording needs, and of a desk's held buffer, from its settings. Settings outside their
// limits have none: 0.
ghost use Rattle.std.specs.Prelude.{◌≡◌, true, false};
ghost use Rattle.lists.specs.Bools.{if_then};
ghost use Rattle.units.specs.Sizes as Sizes;

use units::Settings;

// A length of settings that are within their limits, else 0: C has no Option.
fn within<F: FnOnce(Settings) -> usize>(settings: Settings, length: F) -> usize
    requires { Sizes.limits settings ≡ true → F.pre length settings }
    ensures inside { Sizes.limits settings ≡ true → F.post length settings result }
    ensures outside { Sizes.limits settings ≡ false → result ≡ 0 }
{
    if settings.within_limits() {
        length(settings)
    } else {
        0
    }
}

#[unsafe(no_mangle)]
pub extern "C" fn ungletice_ledger_length(settings: Settings) -> usize
    ensures { result ≡ if_then (Sizes.limits settings) (Sizes.ledger_length settings) 0 }
{
    within(settings, Settings::ledger_length)
}

#[unsafe(no_mangle)]
pub extern "C" fn ungletice_base_length(settings: Settings) -> usize
    ensures { result ≡ if_then (Sizes.limits settings) (Sizes.base_length settings) 0 }
{
    within(settings, Settings::base_length)
}

#[unsafe(no_mangle)]
pub extern "C" fn ungletice_side_length(settings: Settings) -> usize
    ensures { result ≡ if_then (Sizes.limits settings) (Sizes.side_length settings) 0 }
{
    within(settings, Settings::side_length)
}

#[unsafe(no_mangle)]
pub extern "C" fn ungletice_buffer_length(settings: Settings) -> usize
    ensures { result ≡ if_then (Sizes.limits settings) (Sizes.buffer_length settings) 0 }
{
    within(settings, Settings::buffer_length)
}

#[unsafe(no_mangle)]
pub extern "C" fn ungletice_held_length(settings: Settings) -> usize
    ensures { result ≡ if_then (Sizes.limits settings) (Sizes.held_length settings) 0 }
{
    within(settings, Settings::held_length)
}
