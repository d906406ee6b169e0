//! Loaders (JSR 107, `CacheLoader`).

ghost use Rattle.std.specs.Prelude.{◌≡◌, false};
ghost use Rattle.jtypes.specs.declared.loader.LoadAnswer.TheVariants as load;

/// The answer of a loader to one call.
#[derive(Clone, Copy, Debug, PartialEq, Eq)]
pub enum LoadAnswer {
    /// The key has no value.
    None,
    Value(i64),
    Failed,
}

/// The error of a load that failed.
#[derive(Clone, Copy, PartialEq, Eq)]
pub struct LoadFailed;

/// Loads the value of a key that has no entry (JSR 107, `CacheLoader`).
/// An implementation must return, acquire no lock and allocate no memory.
pub trait Loader {
    ghost use Rattle.std.specs.Prelude.{ℤ, Bool};
    ghost use Rattle.jtypes.specs.declared.loader.LoadAnswer.{LoadAnswer};
    ghost use Rattle.jtypes.specs.Loading.{answer_of};

    /// Whether this loader is ever called.
    const ASKS: bool;

    ghost ASKS: { Bool };

    /// The relation of the answers that `load` may return for a key.
    ghost gives: { Self → ℤ → LoadAnswer → Type 0 };

    /// Returns the value of a key, or `None` if it has none.
    fn load(&self, key: i64) -> Result<Option<i64>, LoadFailed>
        ensures { gives self.now key (answer_of result) };
}

/// No loader: `ASKS` is false, and `load` returns `None`.
#[derive(Clone, Copy)]
pub struct NoLoader;

impl Loader for NoLoader {
    const ASKS: bool = false;

    ghost ASKS = { false };

    ghost gives = { λ _ _ a. a ≡ load.None };

    fn load(&self, _key: i64) -> Result<Option<i64>, LoadFailed> {
        Ok(None)
    }
}

impl LoadAnswer {
    ghost use Rattle.std.specs.Prelude.{◌≡◌};
    ghost use Rattle.jtypes.specs.Loading.{answer_of};

    /// Converts the result of `load`.
    pub fn of(answer: Result<Option<i64>, LoadFailed>) -> LoadAnswer
        ensures { result ≡ answer_of answer }
    {
        match answer {
            Ok(Some(value)) => LoadAnswer::Value(value),
            Ok(None) => LoadAnswer::None,
            Err(LoadFailed) => LoadAnswer::Failed,
        }
    }
}
