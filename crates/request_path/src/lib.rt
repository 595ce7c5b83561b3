// A path, for the host and for the panel's request reader: whether it is refused, and why (8 a NUL, 7 too long).
#![tactic(auto)]

ghost use Rattle.std.specs.Prelude.{◌≡◌};
ghost use Rattle.protocol.specs.Bytes.{has};
ghost use Rattle.protocol.specs.Ids.{published};
ghost use Rattle.protocol.specs.Refusal.{path_refusal};
ghost use Rattle.protocol.specs.Requests.{bad_path};
ghost use Rattle.request_path.specs.Meaning.{number_of, refused_by};

// The longest path (document 02, [2]).
pub const MAX_PATH: usize = 1_024;

#[derive(Clone, Copy, PartialEq, Eq)]
pub enum PathRefusal {
    Nul,
    TooLong,
}

impl PathRefusal {
    // The answer's number.
    pub fn number(self) -> u8
        ensures { result ≡ number_of self }
    {
        match self {
            PathRefusal::Nul => 8,
            PathRefusal::TooLong => 7,
        }
    }
}

// Whether a path has a NUL. Every byte is looked at, without an early way out: so the loop goes by many bytes at a time.
fn has_nul(path: &[u8]) -> bool
    ensures { result ≡ has 0 path.now }
{
    let mut nul = false;
    for &b in path {
        nul |= b == 0;
    }
    nul
}

// 8, then 7 (document 02, [6]). The whole path is searched, however long it is.
#[tactic(auto, unfolding(protocol::specs::Refusal::path_refusal))]
pub fn check_path(path: &[u8]) -> Result<(), PathRefusal>
    ensures { refused_by result ≡ path_refusal published path.now }
{
    if has_nul(path) {
        return Err(PathRefusal::Nul);
    }
    if MAX_PATH < path.len() {
        return Err(PathRefusal::TooLong);
    }
    Ok(())
}

// Whether a path is refused.
pub fn bad_path(path: &[u8]) -> bool
    ensures { result ≡ bad_path published path.now }
{
    check_path(path).is_err()
}
