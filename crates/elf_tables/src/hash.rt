ghost use Rattle.std.specs.Prelude.{◌≡◌, ◌+◌, ◌*◌, ◌%◌, ◌^◌};
ghost use Rattle.elf_format.specs.Hashes.{gabi_hash, gabi_step, gnu_hash as gnu_hash_of};
ghost use Rattle.elf_image.specs.FrontText.{front_text};

// The gABI's hash of what was hashed so far and one byte more.
fn with_byte(hash: u32, byte: u8) -> u32
    ensures { result ≡ gabi_step hash byte }
{
    let shifted = ((u64::from(hash) * 16 + u64::from(byte)) % 0x1_0000_0000) as u32;
    (shifted % 0x1000_0000) ^ (16 * (shifted / 0x1000_0000))
}

// The GNU hash of what was hashed so far and one byte more.
fn with_gnu_byte(hash: u32, byte: u8) -> u32
    ensures { result ≡ (hash * 33 + byte) % 2 ^ 32 }
{
    ((u64::from(hash) * 33 + u64::from(byte)) % 0x1_0000_0000) as u32
}

/// The gABI's hash of a name (gABI, Hash Table). Takes no memory.
pub fn sysv_hash(name: &[u8]) -> u32
    ensures { result ≡ gabi_hash name.now }
{
    let mut hash = 0;
    for byte in name {
        hash = with_byte(hash, *byte);
    }
    hash
}

/// The GNU hash of a name, as the GNU hash section has it. Takes no memory.
pub fn gnu_hash(name: &[u8]) -> u32
    ensures { result ≡ gnu_hash_of name.now }
{
    let mut hash = 5381;
    for byte in name {
        hash = with_gnu_byte(hash, *byte);
    }
    hash
}

/// The gABI's hash of the name that bytes begin with: of those up to the first NUL, or of all where there is none (gABI,
/// Hash Table). The name's end isn't looked for before. Takes no memory.
pub fn sysv_hash_of_front(bytes: &[u8]) -> u32
    ensures { result ≡ gabi_hash (front_text bytes.now) }
{
    let mut hash = 0;
    for byte in bytes {
        if *byte == 0 {
            return hash;
        }
        hash = with_byte(hash, *byte);
    }
    hash
}

/// The GNU hash of the name that bytes begin with, as `sysv_hash_of_front` takes it. Takes no memory.
pub fn gnu_hash_of_front(bytes: &[u8]) -> u32
    ensures { result ≡ gnu_hash_of (front_text bytes.now) }
{
    let mut hash = 5381;
    for byte in bytes {
        if *byte == 0 {
            return hash;
        }
        hash = with_gnu_byte(hash, *byte);
    }
    hash
}
