//! Numbers of up to eight bytes, the lowest first.
ghost use Rattle.std.specs.Prelude.{◌≡◌, ◌*◌, ◌^◌, ◌<◌, ◌≤◌, length};
ghost use Rattle.lane_views.specs.Lanes.{bytes_of, number};

/// Bytes as a number.
pub fn number(bytes: &[u8]) -> u64
    requires { length bytes.now ≤ 8 }
    ensures value { result ≡ number bytes.now }
    ensures below { result < 2 ^ (8 * length bytes.now) }
{
    let mut place = bytes.len();
    let mut value: u64 = 0;
    while 0 < place {
        place -= 1;
        value = value * 256 + u64::from(bytes[place]);
    }
    value
}

/// Writes the lowest bytes of a number.
pub fn put_number(bytes: &mut [u8], value: u64)
    requires { length bytes.old ≤ 8 }
    ensures { bytes.new ≡ bytes_of (length bytes.old) value }
{
    for place in 0..bytes.len() {
        bytes[place] = (value >> (8 * place) & 0xff) as u8;
    }
}
