//! The version.

// What `--version` prints after the program's name: its version, the commit whose text it is made of, and the toolchain of the release.
pub(crate) const VERSION: &str =
    "2.7.0\ncommit 50e801bcf0659f1e3f581e6df27de98cb715865c\nrattle-kit-13f logic dac8208d650f15bf";
