// Label bytes as the listing prints them.
ghost use Rattle.ebcdic.specs.Ascii.{Printable};

// A label byte, which is EBCDIC, as a printable character.
const PRINTABLE: [u8; 256] = [
    b'?', // 00
    b'?', b'?', b'?', b'?', b'?', b'?', b'?', b'?', b'?', b'?', b'?', b'?', b'?', b'?', b'?', b'?', // 10
    b'?', b'?', b'?', b'?', b'?', b'?', b'?', b'?', b'?', b'?', b'?', b'?', b'?', b'?', b'?', b'?', // 20
    b'?', b'?', b'?', b'?', b'?', b'?', b'?', b'?', b'?', b'?', b'?', b'?', b'?', b'?', b'?', b'?', // 30
    b'?', b'?', b'?', b'?', b'?', b'?', b'?', b'?', b'?', b'?', b'?', b'?', b'?', b'?', b'?', b'?', // 40
    b'?', b'?', b'?', b'?', b'?', b'?', b'?', b'?', b'?', b'?', b'.', // 4B
    b'?', b'?', b'?', b'?', b'?', // 50
    b'?', b'?', b'?', b'?', b'?', b'?', b'?', b'?', b'?', b'?', b'$', // 5B
    b'?', b'?', b'?', b'?', b'-', // 60
    b'?', b'?', b'?', b'?', b'?', b'?', b'?', b'?', b'?', b'?', b'?', b'?', b'?', b'?', b'?', b'?', // 70
    b'?', b'?', b'?', b'?', b'?', b'?', b'?', b'?', b'?', b'?', b'#', // 7B
    b'@', // 7C
    b'?', b'?', b'?', b'?', // 80
    b'?', b'?', b'?', b'?', b'?', b'?', b'?', b'?', b'?', b'?', b'?', b'?', b'?', b'?', b'?', b'?', // 90
    b'?', b'?', b'?', b'?', b'?', b'?', b'?', b'?', b'?', b'?', b'?', b'?', b'?', b'?', b'?', b'?', // A0
    b'?', b'?', b'?', b'?', b'?', b'?', b'?', b'?', b'?', b'?', b'?', b'?', b'?', b'?', b'?', b'?', // B0
    b'?', b'?', b'?', b'?', b'?', b'?', b'?', b'?', b'?', b'?', b'?', b'?', b'?', b'?', b'?', b'?', // C0
    b'A', // C1
    b'B', // C2
    b'C', // C3
    b'D', // C4
    b'E', // C5
    b'F', // C6
    b'G', // C7
    b'H', // C8
    b'I', // C9
    b'?', b'?', b'?', b'?', b'?', b'?', b'?', // D0
    b'J', // D1
    b'K', // D2
    b'L', // D3
    b'M', // D4
    b'N', // D5
    b'O', // D6
    b'P', // D7
    b'Q', // D8
    b'R', // D9
    b'?', b'?', b'?', b'?', b'?', b'?', b'?', // E0
    b'?', b'S', // E2
    b'T', // E3
    b'U', // E4
    b'V', // E5
    b'W', // E6
    b'X', // E7
    b'Y', // E8
    b'Z', // E9
    b'?', b'?', b'?', b'?', b'?', b'?', b'0', // F0
    b'1', // F1
    b'2', // F2
    b'3', // F3
    b'4', // F4
    b'5', // F5
    b'6', // F6
    b'7', // F7
    b'8', // F8
    b'9', // F9
    b'?', b'?', b'?', b'?', b'?', b'?',
];

// The printable character of a label byte: a name character in ASCII, no two alike, and `?` for any other.
pub fn printable(b: u8) -> u8
    ensures { Printable b result }
{
    PRINTABLE[usize::from(b)]
}
