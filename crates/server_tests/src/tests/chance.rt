//! Random numbers.

/// Random numbers, the same in each run.
#[derive(Drop)]
pub struct Dice {
    pub seed: u32,
}

impl Dice {
    pub fn roll(&mut self) -> u32 {
        self.seed = self.seed.wrapping_mul(1664525).wrapping_add(1013904223);
        self.seed >> 16
    }

    /// A number below this one, which is at most 65,536.
    pub fn below(&mut self, count: u32) -> u32 {
        if count == 0 { 0 } else { self.roll() % count }
    }

    /// The same of few.
    pub fn few(&mut self, count: u16) -> u16 {
        u16::try_from(self.below(u32::from(count))).unwrap_or(0)
    }

    /// One of these.
    pub fn any(&mut self, texts: &'static [&'static str]) -> &'static str {
        let count = u32::try_from(texts.len()).unwrap_or(0);
        text_at(texts, self.below(count) as usize)
    }
}

/// The text of this index, or none.
pub fn text_at(texts: &'static [&'static str], at: usize) -> &'static str {
    match texts.get(at) {
        Some(text) => *text,
        None => "",
    }
}
