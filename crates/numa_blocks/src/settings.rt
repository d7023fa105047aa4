//! Which orders may be taken, and when other nodes are asked for a block of 2 MiB.
ghost use Rattle.std.specs.Prelude.{◌≡◌, ◌≤◌, ℕ};
ghost use Rattle.numa_blocks.specs.Settings.{asks_others, first_settings, holds, is_advised};
ghost use Rattle.numa_blocks.specs.Settings.{is_enabled, is_refused, size_holds, with_size};
ghost use Rattle.numa_blocks.specs.Settings.{with_all};

/// When something is done: a word of the files `enabled` and `defrag` ("Transparent Hugepage
/// Support").
#[derive(Clone, Copy, Debug, PartialEq, Eq)]
pub enum Enabled {
    /// In all areas: `always`.
    Always,
    /// In areas that are advised: `madvise`.
    Madvise,
    /// In none: `never`.
    Never,
}

/// When blocks of one order are taken: a word of the order's own file `enabled`.
#[derive(Clone, Copy, Debug, PartialEq, Eq)]
pub enum SizeEnabled {
    /// When the setting of all sizes says so: `inherit`.
    Inherit,
    /// By its own setting.
    Own(Enabled),
}

/// The advice of an area: the last of madvise(2) about its pages.
#[derive(Clone, Copy, Debug, PartialEq, Eq)]
pub enum Advice {
    /// None.
    Neither,
    /// `MADV_HUGEPAGE`: blocks are wanted.
    Huge,
    /// `MADV_NOHUGEPAGE`: no blocks.
    NoHuge,
}

/// The settings of a machine.
#[derive(Clone, Copy, Debug, PartialEq, Eq)]
pub struct BlockSettings {
    /// When blocks are taken of sizes that inherit.
    pub enabled: Enabled,
    /// When other nodes are asked for a block of 2 MiB that one node lacks. The file's words
    /// `defer` and `never` are `Never`, `defer+madvise` is `Madvise`.
    pub defrag: Enabled,
    /// By order from 2 on, when blocks of 16 KiB, 32 KiB, .., 2 MiB are taken.
    pub sizes: [SizeEnabled; 8],
}

impl Enabled {
    /// Whether it holds in an area that is advised, or isn't.
    pub fn holds(self, advised: bool) -> bool
        ensures { result ≡ holds self advised }
    {
        match self {
            Enabled::Always => true,
            Enabled::Madvise => advised,
            Enabled::Never => false,
        }
    }
}

impl SizeEnabled {
    /// Whether it holds in an area that is advised, or isn't, where this is the setting of all
    /// sizes.
    pub fn holds(self, all: Enabled, advised: bool) -> bool
        ensures { result ≡ size_holds all self advised }
    {
        match self {
            SizeEnabled::Inherit => all.holds(advised),
            SizeEnabled::Own(own) => own.holds(advised),
        }
    }
}

impl Advice {
    /// Whether blocks are wanted.
    pub fn is_advised(self) -> bool
        ensures { result ≡ is_advised self }
    {
        match self {
            Advice::Neither => false,
            Advice::Huge => true,
            Advice::NoHuge => false,
        }
    }

    /// Whether no blocks may be taken.
    pub fn is_refused(self) -> bool
        ensures { result ≡ is_refused self }
    {
        match self {
            Advice::Neither => false,
            Advice::Huge => false,
            Advice::NoHuge => true,
        }
    }
}

impl BlockSettings {
    /// The settings of a machine of which nothing was said: no block is ever taken.
    pub fn new() -> BlockSettings
        ensures { result ≡ first_settings }
    {
        let mut sizes = [SizeEnabled::Own(Enabled::Never); 8];
        sizes[7] = SizeEnabled::Inherit;
        BlockSettings {
            enabled: Enabled::Never,
            defrag: Enabled::Never,
            sizes,
        }
    }

    /// The settings with another setting of all sizes, and another of when other nodes are asked.
    pub fn with_all(&self, enabled: Enabled, defrag: Enabled) -> BlockSettings
        ensures { result ≡ with_all enabled defrag self.now }
    {
        BlockSettings {
            enabled,
            defrag,
            sizes: self.sizes,
        }
    }

    /// The settings with another setting of one order.
    pub fn with_size(&self, order: u32, size: SizeEnabled) -> BlockSettings
        requires low { 2 ≤ order }
        requires high { order ≤ 9 }
        ensures { result ≡ with_size order size self.now }
    {
        let mut sizes = self.sizes;
        sizes[order as usize - 2] = size;
        BlockSettings {
            enabled: self.enabled,
            defrag: self.defrag,
            sizes,
        }
    }

    /// Whether blocks of an order may be taken in an area with this advice.
    pub fn is_enabled(&self, advice: Advice, order: u32) -> bool
        requires { 2 ≤ order }
        ensures { result ≡ is_enabled self.now advice order }
    {
        if advice.is_refused() {
            return false;
        }
        match self.sizes.get(order as usize - 2) {
            Some(size) => size.holds(self.enabled, advice.is_advised()),
            None => false,
        }
    }

    /// Whether other nodes are asked for a block of 2 MiB, in an area with this advice, where the
    /// one node lacks it that is asked first.
    pub fn asks_others(&self, advice: Advice) -> bool
        ensures { result ≡ asks_others self.now advice }
    {
        self.defrag.holds(advice.is_advised())
    }
}
