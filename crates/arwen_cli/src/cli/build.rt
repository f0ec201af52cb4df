//! How the program was built.

/// How the program was built: the second line that `--version` prints. It names the kit whose prover passed the crates that the
/// program stands on, as `rt version` names it. `tools/quick_build`, which proves nothing, has another text here in what it builds.
pub(crate) const BUILT: &str = "proved with rattle-kit-13b logic dac8208d650f15bf\n";
