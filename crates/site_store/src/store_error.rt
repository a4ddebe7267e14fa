use crash_plant::Device;
use xrc_edge::NoMemory;

/// Why a site can't go on. It may not be used again.
#[derive(Clone, Copy, Debug, PartialEq, Eq)]
pub enum StoreError {
    /// The control, the state or a journal has failed.
    Fault(Device),
    /// A record or a mark would need the number 2^64 - 1.
    Spent,
    NoMemory,
}

impl From<NoMemory> for StoreError {
    ghost use Rattle.std.specs.Prelude.{◌≡◌};
    ghost use Rattle.site_store.specs.declared.store_error.StoreError.TheVariants as errors;

    ghost from_gives = { λ _ e. e ≡ errors.NoMemory };

    fn from(_error: NoMemory) -> StoreError {
        StoreError::NoMemory
    }
}
