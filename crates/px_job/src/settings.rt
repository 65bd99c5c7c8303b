//! Settings of a run.

ghost use Rattle.std.specs.Prelude.{◌≡◌, ◌≤◌, None};
ghost use Rattle.px_job.specs.Settings.{nothing_stood, least, most, stood, stood_with, value_or, settings_of};

/// The settings of a run.
#[derive(Clone, Copy, Debug, PartialEq, Eq)]
pub struct Settings {
    /// 1 to 16, 1 where the file doesn't set it.
    pub sessions: u16,
    /// 1 to 16, else 1.
    pub workers: u16,
    /// 0 to 9, else 3.
    pub retries: u16,
    /// The weight of the newest load in the average, per mille: 0 to 1,000, else 200.
    pub alpha: u16,
    /// 0 to 1,000,000, else 1,000.
    pub latency: u32,
    /// 0 to 1,000, else 1.
    pub per_byte: u32,
    /// 0 to 200, else 50.
    pub profile: u16,
}

/// What a line may set.
#[derive(Clone, Copy)]
pub(crate) enum Setting {
    Sessions,
    Workers,
    Retries,
    Alpha,
    Latency,
    PerByte,
    Profile,
}

/// For each setting the number on the first line of its form, whether it is in its range or not.
#[derive(Clone, Copy)]
pub(crate) struct Stood {
    sessions: Option<u64>,
    workers: Option<u64>,
    retries: Option<u64>,
    alpha: Option<u64>,
    latency: Option<u64>,
    per_byte: Option<u64>,
    profile: Option<u64>,
}

impl Setting {
    pub(crate) fn least(self) -> u64
        ensures { result ≡ least self }
    {
        match self {
            Setting::Sessions | Setting::Workers => 1,
            _ => 0,
        }
    }

    pub(crate) fn most(self) -> u64
        ensures { result ≡ most self }
    {
        match self {
            Setting::Sessions | Setting::Workers => 16,
            Setting::Retries => 9,
            Setting::Alpha | Setting::PerByte => 1000,
            Setting::Latency => 1_000_000,
            Setting::Profile => 200,
        }
    }
}

impl Stood {
    pub(crate) fn new() -> Stood
        ensures { result ≡ nothing_stood }
    {
        Stood {
            sessions: None,
            workers: None,
            retries: None,
            alpha: None,
            latency: None,
            per_byte: None,
            profile: None,
        }
    }

    pub(crate) fn get(self, setting: Setting) -> Option<u64>
        ensures { result ≡ stood self setting }
    {
        match setting {
            Setting::Sessions => self.sessions,
            Setting::Workers => self.workers,
            Setting::Retries => self.retries,
            Setting::Alpha => self.alpha,
            Setting::Latency => self.latency,
            Setting::PerByte => self.per_byte,
            Setting::Profile => self.profile,
        }
    }

    pub(crate) fn with(self, setting: Setting, number: u64) -> Stood
        ensures { result ≡ stood_with self setting number }
    {
        let number = Some(number);
        match setting {
            Setting::Sessions => Stood {
                sessions: number,
                ..self
            },
            Setting::Workers => Stood {
                workers: number,
                ..self
            },
            Setting::Retries => Stood {
                retries: number,
                ..self
            },
            Setting::Alpha => Stood {
                alpha: number,
                ..self
            },
            Setting::Latency => Stood {
                latency: number,
                ..self
            },
            Setting::PerByte => Stood {
                per_byte: number,
                ..self
            },
            Setting::Profile => Stood {
                profile: number,
                ..self
            },
        }
    }

    pub(crate) fn settings(self) -> Settings
        ensures { result ≡ settings_of self }
    {
        Settings {
            sessions: self.value_or(Setting::Sessions, 1) as u16,
            workers: self.value_or(Setting::Workers, 1) as u16,
            retries: self.value_or(Setting::Retries, 3) as u16,
            alpha: self.value_or(Setting::Alpha, 200) as u16,
            latency: self.value_or(Setting::Latency, 1000) as u32,
            per_byte: self.value_or(Setting::PerByte, 1) as u32,
            profile: self.value_or(Setting::Profile, 50) as u16,
        }
    }

    // What the first line sets, or what stands where it sets nothing.
    fn value_or(self, setting: Setting, default: u64) -> u64
        requires { default ≤ most setting }
        ensures value { result ≡ value_or self setting default }
        ensures within { result ≤ most setting }
    {
        match self.get(setting) {
            Some(number) if setting.least() <= number && number <= setting.most() => number,
            _ => default,
        }
    }
}
