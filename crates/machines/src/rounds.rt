//! Rounds of a search.

use crate::environment::Environment;
use tsl_terms::Window;

/// An environment that was met, and the window that is assumed after it.
#[derive(Debug, Drop)]
pub struct Round {
    /// The environment.
    pub environment: Environment,
    /// The window.
    pub window: Window,
}
