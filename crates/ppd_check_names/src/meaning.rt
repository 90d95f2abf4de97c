// What a name stands for.
ghost use Rattle.std.specs.Prelude.{◌≡◌};
ghost use Rattle.ppd_check_names.specs.Names.{is_use};

/// What a name can mean. Variables have their first cell and, as arrays, their length.
#[derive(Clone, Copy)]
pub enum Meaning {
    Shared(u16, Option<u16>),
    Local(u16, Option<u16>),
    Semaphore(u8),
    Channel(u8),
    // Its number, its count of parameters, and whether it gives a value.
    Function(u16, usize, bool),
    Process,
}

/// What a name can be used as.
#[derive(Clone, Copy)]
pub enum Use {
    Scalar,
    Element,
    Semaphore,
    Channel,
    Function,
}

impl Meaning {
    /// Whether it can be used so.
    pub fn is_use(&self, wanted: Use) -> bool
        ensures { result ≡ is_use wanted self.now }
    {
        match wanted {
            Use::Scalar => matches!(*self, Meaning::Shared(_, None) | Meaning::Local(_, None)),
            Use::Element => matches!(
                *self,
                Meaning::Shared(_, Some(_)) | Meaning::Local(_, Some(_))
            ),
            Use::Semaphore => matches!(*self, Meaning::Semaphore(_)),
            Use::Channel => matches!(*self, Meaning::Channel(_)),
            Use::Function => matches!(*self, Meaning::Function(_, _, _)),
        }
    }
}
