//! What calls of handles return.
ghost use Rattle.std.specs.Prelude.{◌≡◌};
ghost use Rattle.numaplan_c.specs.Codes.{kept_code, memory_code};

use crate::codes::Code;

/// Returns `Open` if the handle that a call is to open is already open.
macro_rules! ensure_closed {
    ($handle:expr) => {
        if $handle.handle.is_open() {
            return $crate::codes::Code::Open as u32;
        }
    };
}

pub(crate) use ensure_closed;

/// Returns `Closed` if the handle that a call asks is closed.
macro_rules! ensure_open {
    ($handle:expr) => {
        if !$handle.handle.is_open() {
            return $crate::codes::Code::Closed as u32;
        }
    };
}

pub(crate) use ensure_open;

/// What a call returns for what a handle answers: `Closed` if the handle is closed, and a code of
/// its own if there is nothing of what it is asked for.
macro_rules! if_open {
    ($answer:expr, $nothing:expr, $found:pat => $told:expr) => {
        match $answer {
            None => $crate::codes::Code::Closed as u32,
            Some(None) => $nothing as u32,
            Some(Some($found)) => $told,
        }
    };
    ($answer:expr, $found:pat => $told:expr) => {
        match $answer {
            None => $crate::codes::Code::Closed as u32,
            Some($found) => $told,
        }
    };
}

pub(crate) use if_open;

/// The same, where what a handle answers is written at a place of the caller's.
macro_rules! tell_if_open {
    ($place:expr, $answer:expr $(, $nothing:expr)?) => {
        $crate::keeping::if_open!($answer, $($nothing,)? found => {
            *$place = found;
            0
        })
    };
}

pub(crate) use tell_if_open;

/// The value of a result. On an error the call returns its code.
macro_rules! or_return {
    ($result:expr) => {
        match $result {
            Ok(value) => value,
            Err(code) => return code,
        }
    };
    ($result:expr, $code_of:path) => {
        match $result {
            Ok(value) => value,
            Err(fault) => return $code_of(fault),
        }
    };
}

pub(crate) use or_return;

/// The code of a result that can only be out of memory.
pub(crate) fn memory_code<E: Drop>(answer: Result<(), E>) -> u32
    ensures { result ≡ memory_code answer }
{
    match answer {
        Ok(()) => 0,
        Err(_) => Code::NoMemory as u32,
    }
}

/// The same, for a result that is missing if the handle is closed.
pub(crate) fn kept_code<E: Drop>(answer: Option<Result<(), E>>) -> u32
    ensures { result ≡ kept_code answer }
{
    if_open!(answer, answer => memory_code(answer))
}

/// Opens a handle with what another one gives it, and returns the code of that; returns `Open` if
/// it is already open.
macro_rules! open_from {
    ($handle:expr, $given:expr) => {{
        $crate::keeping::ensure_closed!($handle);
        $crate::keeping::kept_code($given)
    }};
}

pub(crate) use open_from;
