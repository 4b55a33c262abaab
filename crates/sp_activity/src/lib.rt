//! Why a box of a model holds no feasible point.
#![tactic(auto)]

mod broken;
mod closing;
mod extremes;
mod holding;
mod kept;
mod laws;
mod making;
mod ranges;
mod reasons;
mod roots;
mod settling;
mod sides;
mod stages;
mod trails;
mod uses;

pub use broken::Broken;
pub use closing::closed;
pub use extremes::{least, most};
pub use holding::holds;
pub use kept::Kept;
pub use laws::{
    boxes_with_points_are_filled, open_points_are_feasible, reasons_are_true, reasons_stay,
};
pub use reasons::Reason;
pub use sides::{Side, tighten};
pub use trails::{Branch, Past, Trail};
pub use uses::{ModelUses, Uses};
