// The release that this library is of. The header names the function, so that a header of another release does not link.
ghost use Rattle.std.specs.Prelude.{◌≡◌};

// 65,536 times the major number, 256 times the minor number, and the patch.
#[unsafe(no_mangle)]
pub extern "C" fn hk_version_1_0_0() -> u32
    ensures { result ≡ 65536 }
{
    board::version::hk_version_1_0_0()
}
