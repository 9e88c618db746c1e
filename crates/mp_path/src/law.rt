// What a grid means.
ghost use Rattle.std.specs.Prelude.{◌≡◌};
ghost use Rattle.mp_semantics.specs.Model.{Model};
ghost use Rattle.mp_semantics.specs.Solves.{environment};
ghost use Rattle.mp_walk.specs.Cells.{environment_of};
ghost use Rattle.mp_path.specs.Edges.{edge_of};
ghost use Rattle.mp_path.specs.Points.{Points, cells_of};
ghost use Rattle.mp_path.specs.Environments.{IsGridOf, declared_part, path_of};

/// A grid for a model stands for the model's environment over the grid's periods, edges and path.
pub fn environment_law()
    ensures { (M : Model) (g : Points) → IsGridOf M g
        → declared_part M (environment_of (cells_of g)) ≡ environment M g.edges.periods (edge_of g.edges) (path_of g) }
{}
