// What a state says, so that a C program need not know its fields.
ghost use Rattle.std.specs.Prelude.{◌≡◌};

use recorder::{Counts, State};
use units::Settings;

#[unsafe(no_mangle)]
pub extern "C" fn ungletice_closed_tick(state: State) -> u32
    ensures { result ≡ state.closed.0 }
{
    state.closed.0
}

#[unsafe(no_mangle)]
pub extern "C" fn ungletice_end(state: State) -> u32
    ensures { result ≡ state.end }
{
    state.end
}

#[unsafe(no_mangle)]
pub extern "C" fn ungletice_entries(state: State) -> u32
    ensures { result ≡ state.entries }
{
    state.entries
}

#[unsafe(no_mangle)]
pub extern "C" fn ungletice_settings_of(state: State) -> Settings
    ensures { result ≡ state.settings }
{
    state.settings
}

#[unsafe(no_mangle)]
pub extern "C" fn ungletice_metadata_counts(state: State) -> Counts
    ensures { result ≡ state.meta }
{
    state.meta
}

#[unsafe(no_mangle)]
pub extern "C" fn ungletice_raw_counts(state: State) -> Counts
    ensures { result ≡ state.raw }
{
    state.raw
}
