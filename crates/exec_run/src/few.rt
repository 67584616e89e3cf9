ghost use Rattle.std.specs.Prelude.{◌↔◌, All, IsTrue};
ghost use Rattle.exec_task.specs.Halts.{IsWidthBounded};

use code_instrs::Site;

/// Whether no fork has more branches than a value counts.
pub fn all_few(sites: &[Site]) -> bool
    ensures { IsTrue result ↔ All IsWidthBounded sites.now }
{
    sites.iter().all(is_few)
}

fn is_few(site: &Site) -> bool
    ensures { IsTrue result ↔ IsWidthBounded site.now }
{
    match site {
        Site::Fork { bodies, .. } => bodies.len() < 2147483648,
        _ => true,
    }
}
