//! Numbers of 32 and 64 bits: `gate_value` of gate.h.

ghost use Rattle.std.specs.Prelude.{◌≡◌, IfSome, IfNone};
ghost use Rattle.wsyntax.specs.Execution.Values.{IsWord};
ghost use Rattle.c_api.specs.Values.{value_fields, IsNoValue};

use wsyntax::Value;

/// A number of 32 or 64 bits.
#[repr(C)]
#[derive(Clone, Copy)]
pub struct GateValue {
    /// 32 or 64.
    pub width: u32,
    /// The number; of 32 bits below 2^32.
    pub bits: u64,
}

const _: () = prove!(size_of::<GateValue>() == 16 && align_of::<GateValue>() == 8);

impl GateValue {
    /// The fields of a value.
    pub(crate) fn of(value: Value) -> GateValue
        ensures { result ≡ value_fields value }
    {
        match value {
            Value::I32(bits) => GateValue {
                width: 32,
                bits: u64::from(bits),
            },
            Value::I64(bits) => GateValue { width: 64, bits },
        }
    }

    /// The value that these are the fields of; `None` where there is none.
    pub(crate) fn value(self) -> Option<Value>
        ensures some { IfSome result (λ v. value_fields v ≡ self) }
        ensures word { IfSome result IsWord }
        ensures none { IfNone result (IsNoValue self) }
    {
        match self.width {
            32 => Some(Value::I32(u32::try_from(self.bits).ok()?)),
            64 => Some(Value::I64(self.bits)),
            _ => None,
        }
    }
}
