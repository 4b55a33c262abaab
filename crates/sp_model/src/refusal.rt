//! Why parts make no model.
use crate::ids::{RowId, VarId};

/// Why parts make no model: the first rule that they break, in this order.
#[derive(Clone, Copy, PartialEq, Eq, Debug)]
pub enum BuildRefusal {
    /// There are more than 2,000 variables, or not as many upper as lower bounds.
    Variables,
    /// A stated bound of this variable has a magnitude above 10^15. Or it is the variable of the first core that isn't
    /// lawful: it isn't known or doesn't rise, a number of its core has a magnitude above 10^15, or a stated bound that
    /// is there isn't the widened one.
    Bound(VarId),
    /// A bound of this variable is missing, and the rows don't close it.
    Open(VarId),
    /// The objective's terms aren't lawful, its width is above 10^36, or its scale is above 30.
    Objective,
    /// The row's terms aren't lawful, its width is above 10^36, or 10,000 rows stand before it.
    Row(RowId),
    /// The indicator's variable isn't known or its bounds aren't 0 or 1, its row breaks a row's rule, or 1,000
    /// indicators stand before it.
    Indicator(u32),
    /// A member of the set isn't known or stands in it twice, or 1,000 sets stand before it.
    Sos(u32),
    /// There was not enough memory.
    NoMemory,
}
