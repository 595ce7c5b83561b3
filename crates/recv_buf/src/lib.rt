// A receive buffer: the bytes read from the channel and not yet taken lie from head to tail of a lent slice (000's base/recv_buf.rs).
#![tactic(auto)]

ghost use Rattle.std.specs.Prelude.{◌≡◌, drop};
ghost use Rattle.recv_buf.specs.RecvBuf.{empty, held_count, taken, filled, held_bytes, compacted, holding, hold_of};

#[derive(Clone, Copy, PartialEq, Eq)]
pub struct RecvBuf {
    pub head: usize,
    pub tail: usize,
}

// Why a number of bytes cannot be held: they are more than the buffer has room for.
#[derive(Clone, Copy, PartialEq, Eq, Debug)]
pub struct TooLarge;

impl RecvBuf {
    pub fn new() -> RecvBuf
        ensures { result ≡ empty }
    {
        RecvBuf { head: 0, tail: 0 }
    }

    // How many bytes are held.
    pub fn held(self) -> usize
        ensures { result ≡ held_count self }
    {
        self.tail.saturating_sub(self.head)
    }

    // Takes the first n held bytes.
    pub fn take(self, n: usize) -> RecvBuf
        ensures { result ≡ taken self n }
    {
        if self.held() < n {
            return self;
        }
        RecvBuf {
            head: self.head + n,
            ..self
        }
    }

    // Holds n more: those that were read into the window.
    pub fn fill(self, n: usize, capacity: usize) -> RecvBuf
        ensures { result ≡ filled self n capacity }
    {
        match self.tail.checked_add(n) {
            Some(tail) if tail <= capacity => RecvBuf { tail, ..self },
            _ => self,
        }
    }

    // Moves the held bytes to the front.
    pub fn compact(self, buf: &mut [u8]) -> RecvBuf
        ensures { (buf.new, result) ≡ compacted buf.old self }
    {
        if self.head == 0 || self.tail < self.head || buf.len() < self.tail {
            return self;
        }
        buf.copy_within(self.head..self.tail, 0);
        RecvBuf {
            head: 0,
            tail: self.held(),
        }
    }

    // Where the next read goes: what lies behind the held bytes.
    pub fn window(self, buf: &mut [u8]) -> &mut [u8]
        ensures { result.now ≡ drop self.tail buf.old }
    {
        let at = self.tail.min(buf.len());
        &mut buf[at..]
    }

    // The held bytes.
    pub fn peek(self, buf: &[u8]) -> &[u8]
        ensures { result.now ≡ held_bytes buf.now self }
    {
        if self.tail < self.head || buf.len() < self.tail {
            return &[];
        }
        &buf[self.head..self.tail]
    }

    // Holds n bytes: the cursor whose window a read goes to, or none where they are held. The held bytes move only where tail meets the end.
    pub fn hold(self, buf: &mut [u8], n: usize) -> Result<Option<RecvBuf>, TooLarge>
        ensures { (buf.new, hold_of result) ≡ holding buf.old self n }
    {
        if buf.len() < n {
            return Err(TooLarge);
        }
        if n <= self.held() {
            return Ok(None);
        }
        if self.tail < buf.len() {
            return Ok(Some(self));
        }
        Ok(Some(self.compact(buf)))
    }
}
