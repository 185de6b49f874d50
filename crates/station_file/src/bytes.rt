// Bytes put into others.
ghost use Rattle.std.specs.Prelude.{◌≡◌, ◌+◌, ◌≤◌, length};
ghost use Rattle.station_file.specs.Layout.{put};

pub(crate) fn put<const N: usize>(bytes: &mut [u8], at: usize, value: [u8; N])
    requires { at + N ≤ length bytes.old }
    ensures { bytes.new ≡ put at value.entry bytes.old }
{
    bytes[at..at + N].copy_from_slice(&value);
}
