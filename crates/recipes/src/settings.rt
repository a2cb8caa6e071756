//! Settings in three layers, field by field: the user's where it is set, else the site's, else the default.
ghost use Rattle.std.specs.Prelude.{◌≡◌};
ghost use Rattle.either_or_both.specs.Prelude.{unwrap_or};

use either_or_both::EitherOrBoth;

/// The settings that a program goes by.
#[derive(Debug, PartialEq, Drop)]
pub struct Settings {
    pub host: String,
    pub port: u16,
}

/// What a layer sets of them: a field that it says nothing of is None.
#[derive(Debug, Drop)]
pub struct Layer {
    pub host: Option<String>,
    pub port: Option<u16>,
}

/// One setting.
pub fn pick<T: Drop>(default: T, site: Option<T>, user: Option<T>) -> T
    ensures { result ≡ unwrap_or user (unwrap_or site default) }
{
    match EitherOrBoth::try_from((site, user)) {
        Ok(layers) => layers.reduce_right(|site| site),
        Err(_) => default,
    }
}

/// All settings.
pub fn resolve(default: Settings, site: Layer, user: Layer) -> Settings
    ensures host { result.host ≡ unwrap_or user.host (unwrap_or site.host default.host) }
    ensures port { result.port ≡ unwrap_or user.port (unwrap_or site.port default.port) }
{
    Settings {
        host: pick(default.host, site.host, user.host),
        port: pick(default.port, site.port, user.port),
    }
}
